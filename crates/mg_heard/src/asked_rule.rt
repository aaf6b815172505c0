ghost use Rattle.std.specs.Prelude.{◌≡◌, IfOk, None, Some, MatchOption};
ghost use Rattle.std.specs.List.{AllZip};
ghost use Rattle.mg_heard.specs.Asked.{IsRule, around_arrow, pattern_by, rule_by};

use crate::asked::Asked;
use crate::keys::keys_for;
use crate::name_fault::NameFault;
use crate::names::Names;
use crate::rule::Rule;
use mg_words::cut;
use std::alloc::Global;

/// A rule whose talker and listener may be given by name.
#[derive(Default, Drop)]
pub struct AskedRule {
    /// The talker, or `None` for any talker.
    pub talker: Option<Asked>,
    /// The listener, or `None` for any listener.
    pub listener: Option<Asked>,
}

/// Returns the parts of `text` before and after ` -> `. Returns `None` if there is no `>`, or if the first `>` is not
/// part of such an arrow.
fn around_arrow(text: &[u8]) -> Option<(&[u8], &[u8])>
    ensures value { MatchOption result (around_arrow text.now ≡ None)
        (λ parts. around_arrow text.now ≡ Some (parts.0.now, parts.1.now)) }
{
    let (front, back) = cut(b'>', text)?;
    let before = front.strip_suffix(b" -".as_slice())?;
    let after = back.strip_prefix(b" ".as_slice())?;
    Some((before, after))
}

/// Parses one side of an arrow: a key, a name, or `*` for any termination, which is `Some(None)`.
fn pattern_of(text: &[u8], has_names: bool) -> Option<Option<Asked>>
    ensures value { result ≡ pattern_by has_names text.now }
{
    if text == b"*".as_slice() {
        return Some(None);
    }
    Some(Some(Asked::of(text, has_names)?))
}

impl AskedRule {
    /// Parses a talker, ` -> ` and a listener. Returns `None` if the text is anything else. Names are allowed if
    /// `has_names` is set.
    pub fn of(text: &[u8], has_names: bool) -> Option<AskedRule>
        ensures value { result ≡ rule_by has_names text.now }
    {
        let (talker, listener) = around_arrow(text)?;
        let talker = pattern_of(talker, has_names)?;
        let listener = pattern_of(listener, has_names)?;
        Some(AskedRule { talker, listener })
    }

    /// Looks up the names in the rule, and returns the rule with their keys.
    fn rule(&self, alloc: Global, names: &Names) -> Result<Rule, NameFault>
        ensures value { IfOk result (IsRule names.now self.now) }
    {
        let talker = keys_for(alloc, &self.talker, names)?;
        let listener = keys_for(alloc, &self.listener, names)?;
        Ok(Rule { talker, listener })
    }
}

/// Looks up the names in the rules, and returns the rules with their keys.
pub fn rules_of(alloc: Global, asked: &[AskedRule], names: &Names) -> Result<Vec<Rule>, NameFault>
    ensures value { IfOk result (λ rules. AllZip (IsRule names.now) asked.now rules.items) }
{
    let mut rules = Vec::new(alloc);
    for one in asked {
        let rule = one.rule(alloc, names)?;
        if rules.push(rule).is_err() {
            return Err(NameFault::NoMemory);
        }
    }
    Ok(rules)
}
