//! Tests of terminations and contexts.

ghost use Rattle.std.specs.Prelude.{◌≡◌};

use crate::equality::assert_equal;
use mg_g711::Law;
use mg_rooms::{
    ErrorNumber, Limits, MEMBER_LIMIT, MediaSetting, Member, Mode, Record, Rooms, Settings,
    TERMINATION_LIMIT, Target, mode_listens, mode_talks,
};
use mg_sdp::{Chosen, read_sessions};
use std::process::Abort;
use std::test::Fail;

const LIMITS: Limits = Limits {
    address: [127, 0, 0, 1],
    base_port: 30000,
    slots: TERMINATION_LIMIT as u16,
    first_termination: 1,
    first_context: 1,
};

/// Returns the numbers of the context and the termination.
fn numbers(member: Member) -> (u32, u32)
    ensures { result ≡ (member.record.context, member.record.number) }
{
    (member.record.context, member.record.number)
}

/// Limits with enough slots for a full context and a context with two members.
const CROWDED: Limits = Limits {
    slots: MEMBER_LIMIT as u16 + 2,
    ..LIMITS
};

/// Creates a context and fills it.
fn fill_context(rt: &impl Abort, rooms: &mut Rooms, context: u32) {
    let first = rooms.add(Target::New, &Settings::default());
    assert_equal(rt, first.map(|member| member.record.context), Ok(context));
    for _ in 1..MEMBER_LIMIT {
        let next = rooms.add(Target::Number(context), &Settings::default());
        assert_equal(rt, next.map(|member| member.record.context), Ok(context));
    }
}

fn local(content: &[u8]) -> MediaSetting {
    match read_sessions(content) {
        Ok(sessions) => MediaSetting::Offer(sessions),
        Err(_) => MediaSetting::Unreadable,
    }
}

#[test]
fn slots_and_contexts_fill_up(rt: HostRuntime) -> Result<(), Fail> {
    let mut rooms = Rooms::new(rt.alloc(), CROWDED)?;
    let settings = Settings::default();
    fill_context(&rt, &mut rooms, 1);
    assert!(rt; rooms.add(Target::New, &settings).is_ok());
    assert!(rt; rooms.add(Target::Number(2), &settings).is_ok());
    assert_equal(
        &rt,
        rooms.add(Target::Number(1), &settings),
        Err(ErrorNumber::NoTerminationLeft),
    );

    let (slot, first) = (MEMBER_LIMIT as u8, MEMBER_LIMIT as u32 + 1);
    let gone = rooms.subtract(Target::Number(2), first);
    assert_equal(&rt, gone.map(numbers), Ok((2, first)));
    assert_equal(&rt, rooms.at_slot(slot), None);
    assert_equal(
        &rt,
        rooms.add(Target::Number(1), &settings),
        Err(ErrorNumber::ContextFull),
    );

    let added = rooms.add(Target::Number(2), &settings);
    let last = MEMBER_LIMIT as u32 + 3;
    assert_equal(&rt, added.map(numbers), Ok((2, last)));
    assert_equal(&rt, rooms.at_slot(slot), Some(last));
    assert_equal(&rt, rooms.members(2).last().copied(), Some(last));
    assert_equal(
        &rt,
        CROWDED.slot_port(slot),
        30000 + 2 * MEMBER_LIMIT as u16,
    );
    Ok(())
}

/// The first termination after it was created.
const FRESH: Record = Record {
    number: 1,
    context: 1,
    slot: 0,
    seat: 0,
    mode: Mode::Inactive,
    depth: 4,
    local: None,
    remote: None,
};

/// The first termination, with settings that are supported.
const SET: Record = Record {
    mode: Mode::SendOnly,
    depth: 2,
    local: Some(Chosen {
        address: [127, 0, 0, 1],
        port: 30000,
        law: Law::A,
    }),
    remote: Some(Chosen {
        address: [127, 0, 0, 1],
        port: 40000,
        law: Law::Mu,
    }),
    ..FRESH
};

/// The first termination, after its media were removed.
const CLEARED: Record = Record {
    local: None,
    remote: None,
    ..SET
};

/// Returns why a change of the first termination is rejected, or `None` if it succeeds.
fn modify_fault(rooms: &mut Rooms, settings: &Settings) -> Option<ErrorNumber> {
    rooms.modify(Target::Number(1), 1, settings).err()
}

/// Unsupported media change nothing.
fn refuse_settings(rt: &impl Abort, rooms: &mut Rooms) {
    let unserved = Settings {
        mode: Some(Mode::SendOnly),
        depth: Some(1),
        local: Some(local(b"v=0\nm=audio $ RTP/AVP 18\n")),
        remote: None,
    };
    assert_equal(
        rt,
        modify_fault(rooms, &unserved),
        Some(ErrorNumber::NoMedia),
    );
    assert_equal(rt, rooms.record(1), Some(FRESH));
}

/// The first supported codec is chosen, and a depth is limited to its range.
fn set_settings(rt: &impl Abort, rooms: &mut Rooms) {
    let served = Settings {
        mode: Some(Mode::SendOnly),
        depth: Some(1),
        local: Some(local(b"v=0\nc=IN IP4 $\nm=audio $ RTP/AVP 18 8 0\n")),
        remote: Some(local(b"v=0\nc=IN IP4 127.0.0.1\nm=audio 40000 RTP/AVP 0\n")),
    };
    assert_equal(rt, modify_fault(rooms, &served), None);
    assert_equal(rt, rooms.find(Target::Number(1), 1).ok(), Some(SET));
}

/// Blank content and `Clear` remove media, and settings that are not named are unchanged.
fn clear_settings(rt: &impl Abort, rooms: &mut Rooms) {
    let cleared = Settings {
        mode: None,
        depth: None,
        local: Some(local(b"")),
        remote: Some(MediaSetting::Clear),
    };
    assert_equal(rt, modify_fault(rooms, &cleared), None);
    assert_equal(rt, rooms.record(1), Some(CLEARED));
}

#[test]
fn settings_are_set_and_refused(rt: HostRuntime) -> Result<(), Fail> {
    let mut rooms = Rooms::new(rt.alloc(), LIMITS)?;
    let made = rooms.add(Target::New, &Settings::default());
    assert_equal(&rt, made.map(numbers), Ok((1, 1)));
    refuse_settings(&rt, &mut rooms);
    set_settings(&rt, &mut rooms);
    clear_settings(&rt, &mut rooms);
    Ok(())
}

#[test]
fn terminations_move(rt: HostRuntime) -> Result<(), Fail> {
    let mut rooms = Rooms::new(rt.alloc(), LIMITS)?;
    let settings = Settings::default();
    let _ = rooms.add(Target::New, &settings);
    let _ = rooms.add(Target::Number(1), &settings);
    assert_equal(
        &rt,
        rooms.move_to(Target::Null, 1, &settings),
        Err(ErrorNumber::UnknownContext),
    );
    assert_equal(
        &rt,
        rooms.move_to(Target::Number(1), 1, &settings),
        Err(ErrorNumber::AlreadyInContext),
    );
    assert_equal(
        &rt,
        rooms.move_to(Target::New, 3, &settings),
        Err(ErrorNumber::UnknownTermination),
    );

    let moved = rooms.move_to(Target::New, 1, &settings);
    assert_equal(&rt, moved.map(|moved| numbers(moved.to)), Ok((2, 1)));
    assert_equal(&rt, rooms.room(1), Some(0));
    assert_equal(&rt, rooms.room(2), Some(1));
    assert_equal(
        &rt,
        rooms.find(Target::New, 1),
        Err(ErrorNumber::UnknownContext),
    );

    let back = rooms.move_to(Target::Number(1), 1, &settings);
    assert_equal(&rt, back.map(|moved| numbers(moved.to)), Ok((1, 1)));
    assert_equal(&rt, rooms.members(1), [2, 1].as_slice());
    assert_equal(&rt, rooms.room(2), None);
    Ok(())
}

/// Returns why an Add is rejected, or `None` if it succeeds.
fn add_fault(rooms: &mut Rooms, target: Target) -> Option<ErrorNumber> {
    rooms.add(target, &Settings::default()).err()
}

/// Uses up the last context number and the last two termination numbers.
fn use_up_numbers(rt: &impl Abort, rooms: &mut Rooms) {
    assert_equal(rt, add_fault(rooms, Target::New), None);
    assert_equal(
        rt,
        add_fault(rooms, Target::New),
        Some(ErrorNumber::NoContextLeft),
    );
    let last = Target::Number(4294967293);
    assert_equal(rt, add_fault(rooms, last), None);
    assert_equal(
        rt,
        rooms.members(4294967293),
        [4294967294, 4294967295].as_slice(),
    );
    let refused = add_fault(rooms, last);
    assert_equal(rt, refused.map(|refusal| refusal.number()), Some(432));
}

#[test]
fn numbers_end(rt: HostRuntime) -> Result<(), Fail> {
    let limits = Limits {
        first_termination: 4294967294,
        first_context: 4294967293,
        ..LIMITS
    };
    let mut rooms = Rooms::new(rt.alloc(), limits)?;
    use_up_numbers(&rt, &mut rooms);
    Ok(())
}

#[test]
fn limits_are_reported(rt: HostRuntime) -> Result<(), Fail> {
    for (limits, is_valid) in [
        (LIMITS, true),
        (Limits { slots: 0, ..LIMITS }, false),
        (
            Limits {
                slots: TERMINATION_LIMIT as u16 + 1,
                ..LIMITS
            },
            false,
        ),
        (
            Limits {
                base_port: 30001,
                ..LIMITS
            },
            false,
        ),
        (
            Limits {
                base_port: 65530,
                slots: 3,
                ..LIMITS
            },
            true,
        ),
        (
            Limits {
                base_port: 65530,
                slots: 4,
                ..LIMITS
            },
            false,
        ),
        (
            Limits {
                first_context: 4294967294,
                ..LIMITS
            },
            false,
        ),
    ] {
        assert_equal(&rt, limits.is_valid(), is_valid);
    }
    Ok(())
}

#[test]
fn modes_are_seen_from_outside(rt: HostRuntime) -> Result<(), Fail> {
    let modes = [
        (Mode::Inactive, false, false),
        (Mode::SendOnly, false, true),
        (Mode::ReceiveOnly, true, false),
        (Mode::SendReceive, true, true),
        (Mode::Loopback, false, false),
    ];
    for (mode, talks, listens) in modes {
        let found = (mode_talks(mode), mode_listens(mode));
        assert_equal(&rt, found, (talks, listens));
    }
    Ok(())
}
