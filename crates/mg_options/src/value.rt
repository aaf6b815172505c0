ghost use Rattle.std.specs.Prelude.{◌≡◌};
ghost use Rattle.clap.specs.Words.{found_of, rows_of};
ghost use Rattle.mg_options.specs.Numbers.{number_given};

use clap::ArgMatches;

/// Returns the 16-bit number that was given for an option, or `None` if the option was not given.
pub fn short_value(matches: &ArgMatches<'_>, name: &str) -> Option<u16>
    ensures value { result ≡ number_given 65536 name.now (rows_of (found_of matches.now)) }
{
    matches.get_one(name)
}

/// Returns the 32-bit number that was given for an option, or `None` if the option was not given.
pub fn long_value(matches: &ArgMatches<'_>, name: &str) -> Option<u32>
    ensures value { result ≡ number_given 4294967296 name.now (rows_of (found_of matches.now)) }
{
    matches.get_one(name)
}
