//! The audit of a context. It reports, for each pair of members, who hears whom.

ghost use Rattle.std.specs.Prelude.{◌≡◌, All, map};
ghost use Rattle.mg_reply.specs.Reply.{after_all};
ghost use Rattle.mg_engine.specs.Gateway.{Gateway};
ghost use Rattle.mg_engine.specs.aids.Place.{IsOnSeat};
ghost use Rattle.mg_engine.specs.aids.Stands.{StandsFor};
ghost use Rattle.mg_commands.specs.ContextProperties.{pair_item, audit_pair, audit_pairs};

use crate::named_member::NamedMember;
use mg_engine::{Association, Engine};
use mg_reply::{Item, Reply};

/// Returns the item that reports who hears whom of two members.
fn pair_item(
    second_hears: bool,
    first_hears: bool,
    first: &NamedMember,
    second: &NamedMember,
) -> Item
    ensures value { result ≡ pair_item second_hears first_hears first.now.number second.now.number }
{
    let a = first.name();
    let b = second.name();
    match (second_hears, first_hears) {
        (true, true) => Item::Triple(a, b, Association::Bothway),
        (true, false) => Item::Triple(a, b, Association::Oneway),
        (false, true) => Item::Triple(b, a, Association::Oneway),
        (false, false) => Item::Triple(a, b, Association::Isolate),
    }
}

fn audit_pair(engine: &Engine, first: &NamedMember, second: &NamedMember) -> Item
    requires first { IsOnSeat engine.now.rooms first.now }
    requires second { IsOnSeat engine.now.rooms second.now }
    ensures value { (w : Gateway) → StandsFor engine.now w → result ≡ audit_pair w first.now.number second.now.number }
{
    let second_hears = engine.hears_seated(first.seated(), second.seated());
    let first_hears = engine.hears_seated(second.seated(), first.seated());
    pair_item(second_hears, first_hears, first, second)
}

/// For a member and each member that entered later, reports who hears whom.
fn put_pairs_of(engine: &Engine, first: &NamedMember, later: &[NamedMember], reply: &mut Reply)
    requires first { IsOnSeat engine.now.rooms first.now }
    requires later { All (IsOnSeat engine.now.rooms) later.now }
    ensures value { (w : Gateway) → StandsFor engine.now w →
        reply.new ≡ after_all reply.old (map (λ m. audit_pair w first.now.number m.number) later.now) }
{
    for second in later {
        reply.put(audit_pair(engine, first, second));
    }
}

/// Reports each pair of members, in order of entry.
pub fn put_pairs(engine: &Engine, members: &[NamedMember], reply: &mut Reply)
    requires members { All (IsOnSeat engine.now.rooms) members.now }
    ensures value { (w : Gateway) → StandsFor engine.now w →
        reply.new ≡ after_all reply.old (audit_pairs w (map (λ m. m.number) members.now)) }
{
    for (i, first) in members.iter().enumerate() {
        let (_, later) = members.split_at(i + 1);
        put_pairs_of(engine, first, later, reply);
    }
}
