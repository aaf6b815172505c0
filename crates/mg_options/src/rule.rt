ghost use Rattle.std.specs.Prelude.{◌≡◌};
ghost use Rattle.clap.specs.Words.{rule_of};
ghost use Rattle.mg_options.specs.Numbers.{number_rule};

use clap::{Arg, value_parser};
use std::alloc::Global;

/// Creates an option that takes one 16-bit number.
pub fn short_number<'a>(alloc: Global, name: &'a str) -> Arg<'a>
    ensures rule { rule_of result ≡ number_rule name.now 0 65535 }
{
    Arg::new(alloc, name)
        .long(name)
        .value_name("NUMBER")
        .value_parser(value_parser!(u16))
}

/// Creates an option that takes one 32-bit number.
pub fn long_number<'a>(alloc: Global, name: &'a str) -> Arg<'a>
    ensures rule { rule_of result ≡ number_rule name.now 0 4294967295 }
{
    Arg::new(alloc, name)
        .long(name)
        .value_name("NUMBER")
        .value_parser(value_parser!(u32))
}
