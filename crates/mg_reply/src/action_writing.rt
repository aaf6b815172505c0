ghost use Rattle.std.specs.Prelude.{◌≡◌, ◌&&◌, ◌++◌, ◌∷◌, [], codes};
ghost use Rattle.mg_reply.specs.aids.Draft.{drafted};
ghost use Rattle.mg_reply.specs.Listed.{listed, grouped};
ghost use Rattle.mg_reply.specs.aids.Marks.{has_no_part, mark_of, closing};
ghost use Rattle.mg_reply.specs.Entries.{outcome_text, item_text, texts_of, topology_entry, entries_of};
ghost use Rattle.mg_words.specs.Association.{association_text};
ghost use Rattle.mg_words.specs.ContextId.{context_text};
ghost use Rattle.mg_reply.specs.Written.{action_text, actions_text};

use crate::draft::Draft;
use crate::entry_kind::EntryKind;
use crate::item::Item;
use crate::outcome::Outcome;
use crate::parts_writing::{put_number, put_parts};
use crate::rtp_name::RtpName;
use mg_words::{Association, CommandWord, ContextId, Term};

fn put_context(draft: &mut Draft, id: ContextId)
    ensures value { draft.new ≡ drafted draft.old (context_text id) }
{
    match id {
        ContextId::Null => draft.put(b"-"),
        ContextId::Choose => draft.put(b"$"),
        ContextId::All => draft.put(b"*"),
        ContextId::Number(n) => put_number(draft, u64::from(n)),
    }
}

#[tactic(auto, using(crate::proofs::DraftLemmas::joins), unfolding(crate::specs::Listed::listed))]
fn put_outcome(draft: &mut Draft, outcome: Outcome)
    ensures value { draft.new ≡ drafted draft.old (outcome_text outcome) }
{
    match outcome {
        Outcome::Failed(number) => {
            draft.put(b"{");
            draft.put(number.descriptor().as_slice());
            draft.put(b"}");
        }
        Outcome::Done(parts) => put_parts(draft, parts),
    }
}

/// Appends a comma and an association. The comma and the association are one literal, so that one store writes both.
fn put_association(draft: &mut Draft, association: Association)
    ensures value { draft.new ≡ drafted draft.old (codes "," ++ association_text association) }
{
    match association {
        Association::Isolate => draft.put(b",Isolate"),
        Association::Oneway => draft.put(b",Oneway"),
        Association::Bothway => draft.put(b",Bothway"),
    }
}

#[tactic(auto, using(crate::proofs::DraftLemmas::joins))]
fn put_triple(draft: &mut Draft, a: &RtpName, b: &RtpName, association: Association)
    ensures value { draft.new ≡ drafted draft.old (item_text (Item.Triple a.now b.now association)) }
{
    draft.put_name(a);
    draft.put(b",");
    draft.put_name(b);
    put_association(draft, association);
}

#[tactic(auto, using(crate::proofs::DraftLemmas::joins))]
fn put_command(draft: &mut Draft, word: CommandWord, term: &Term, outcome: Outcome)
    ensures value { draft.new ≡ drafted draft.old (item_text (Item.Command word term.now outcome)) }
{
    draft.put(word.as_str().as_bytes());
    draft.put(b"=");
    draft.put(term.as_slice());
    put_outcome(draft, outcome);
}

/// Appends an item, or nothing for the end of an action.
fn put_item(draft: &mut Draft, item: &Item)
    ensures value { draft.new ≡ drafted draft.old (item_text item.now) }
{
    match item {
        Item::Triple(a, b, association) => put_triple(draft, a, b, *association),
        Item::Command(word, term, outcome) => put_command(draft, *word, term, *outcome),
        Item::Fault(number) => draft.put(number.descriptor().as_slice()),
        Item::Action(_) => draft.put(b""),
    }
}

/// Appends the mark that precedes the next part of a list.
fn put_mark(draft: &mut Draft, opening: &[u8], is_first: bool)
    ensures value { draft.new ≡ drafted draft.old (mark_of opening.now is_first) }
{
    if is_first {
        draft.put(opening);
    } else {
        draft.put(b",");
    }
}

/// Appends the closing brace of a list, unless the list is empty.
fn close(draft: &mut Draft, is_empty: bool)
    ensures value { draft.new ≡ drafted draft.old (closing is_empty) }
{
    if is_empty {
        draft.put(b"");
    } else {
        draft.put(b"}");
    }
}

/// Appends an item, preceded by the mark, if the item is of this kind. Returns whether the list is still empty.
#[tactic(auto, using(crate::proofs::ListedLemmas::one_other), unfolding(crate::specs::Listed::listed))]
fn put_if_of(
    draft: &mut Draft,
    opening: &[u8],
    is_first: bool,
    kind: EntryKind,
    item: &Item,
) -> bool
    ensures value { draft.new ≡ drafted draft.old
        (listed (mark_of opening.now is_first) (texts_of kind (item.now ∷ []))) }
    ensures first { result ≡ (is_first && has_no_part (texts_of kind (item.now ∷ []))) }
{
    if !item.is_of(kind) {
        draft.put(b"");
        return is_first;
    }
    put_mark(draft, opening, is_first);
    put_item(draft, item);
    false
}

/// Appends the items of a kind, with `opening` before the first part of the list and commas between parts.
///
/// Returns whether the list is still empty.
fn put_all(
    draft: &mut Draft,
    opening: &[u8],
    is_first: bool,
    kind: EntryKind,
    items: &[Item],
) -> bool
    ensures value { draft.new ≡ drafted draft.old (listed (mark_of opening.now is_first) (texts_of kind items.now)) }
    ensures first { result ≡ (is_first && has_no_part (texts_of kind items.now)) }
{
    let mut is_next_first = is_first;
    for item in items {
        is_next_first = put_if_of(draft, opening, is_next_first, kind, item);
    }
    draft.put(b"");
    is_next_first
}

/// Appends the topology as the first entry, if there are triples. Returns whether no entry has been written yet.
fn put_topology(draft: &mut Draft, items: &[Item]) -> bool
    ensures value { draft.new ≡ drafted draft.old
        (listed (codes "{") (topology_entry (texts_of EntryKind.Triples items.now))) }
    ensures first { result ≡ has_no_part (topology_entry (texts_of EntryKind.Triples items.now)) }
{
    let is_empty = put_all(draft, b"{Topology{", true, EntryKind::Triples, items);
    close(draft, is_empty);
    is_empty
}

/// Appends the entries of an action in braces, or nothing if the action has no entries.
fn put_entries(draft: &mut Draft, items: &[Item])
    ensures value { draft.new ≡ drafted draft.old (grouped (entries_of items.now)) }
{
    let is_first = put_topology(draft, items);
    let is_first = put_all(draft, b"{", is_first, EntryKind::Commands, items);
    let is_empty = put_all(draft, b"{", is_first, EntryKind::Faults, items);
    close(draft, is_empty);
}

/// Appends a mark, and then an action with its entries.
#[tactic(auto, using(crate::proofs::DraftLemmas::joins))]
fn put_action(draft: &mut Draft, mark: &[u8], id: ContextId, items: &[Item])
    ensures value { draft.new ≡ drafted draft.old (mark.now ++ action_text id items.now) }
{
    draft.put(mark);
    draft.put(b"Context=");
    put_context(draft, id);
    put_entries(draft, items);
}

/// Appends all actions of a reply.
pub(crate) fn put_actions(draft: &mut Draft, items: &[Item])
    ensures value { draft.new ≡ drafted draft.old (actions_text [] [] items.now) }
{
    let mut from = 0;
    let mut mark: &[u8] = b"";
    for (i, item) in items.iter().enumerate() {
        let Some(id) = item.action_id() else {
            continue;
        };
        let (ended, _) = items.split_at(i);
        let (_, entries) = ended.split_at(from);
        put_action(draft, mark, id, entries);
        from = i + 1;
        mark = b",";
    }
    draft.put(b"");
}
