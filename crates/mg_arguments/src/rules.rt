ghost use Rattle.std.specs.Prelude.{◌≡◌, [], map};
ghost use Rattle.mg_arguments.specs.Rules.{rules_of};

use crate::rule_fault::RuleFault;
use arrayvec::ArrayVec;
use mg_heard::AskedRule;
use std::marker::Model;

/// The maximum number of rules.
const MAX_RULES: usize = 64;

/// A list of at most 64 rules about who must not be heard.
#[derive(Drop)]
pub struct Rules {
    rules: ArrayVec<AskedRule, MAX_RULES>,
}

impl Model for Rules {
    ghost use Rattle.std.specs.Prelude.{List};
    ghost use Rattle.mg_heard.specs.declared.asked_rule.AskedRule.{AskedRule};

    ghost Value = { List AskedRule };

    ghost view = { λ r. r.rules.items };
}

impl Rules {
    /// Parses rules such as `RTP/1 -> RTP/2`. Names are allowed if `has_names` is set.
    pub fn of(texts: &[&str], has_names: bool) -> Result<Self, RuleFault>
        ensures value { result ≡ rules_of has_names (map (λ text. text.now) texts.now) }
    {
        if texts.len() > MAX_RULES {
            return Err(RuleFault::TooMany);
        }
        let mut rules = ArrayVec::new();
        for text in texts {
            let Some(rule) = AskedRule::of(text.as_bytes(), has_names) else {
                return Err(RuleFault::Unreadable);
            };
            rules.push(rule);
        }
        Ok(Rules { rules })
    }

    pub fn as_slice(&self) -> &[AskedRule]
        ensures value { result.now ≡ self.now }
    {
        self.rules.as_slice()
    }
}
