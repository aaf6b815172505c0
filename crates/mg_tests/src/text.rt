//! Tests of messages.

use crate::equality::assert_equal;
use mg_scan::Span;
use mg_text::{
    Association, AuditWord, Body, Command, CommandWord, ContextId, ContextProperty, ContextWord,
    ControlPart, Descriptor, MediaPart, MessageItem, Mode, NamedTriple, OtherWord, PropertyValue,
    Range, ReadFault, StreamPart, read,
};
use std::alloc::{AllocError, Global};
use std::test::Fail;

const HEAD: &[u8] = b"MEGACO/1 [127.0.0.1]:2945 ";

/// Returns a message: a head, `before`, `part` repeated `count` times, and `after`.
fn repeated(
    alloc: Global,
    before: &[u8],
    part: &[u8],
    count: usize,
    after: &[u8],
) -> Result<Vec<u8>, AllocError> {
    let mut text = Vec::new(alloc);
    text.extend_from_slice(HEAD)?;
    text.extend_from_slice(before)?;
    for _ in 0..count {
        text.extend_from_slice(part)?;
    }
    text.extend_from_slice(after)?;
    Ok(text)
}

/// Returns whether a span of a source has this text.
fn is_text(span: Span, source: &[u8], text: &[u8]) -> bool {
    span.text(source) == text
}

/// Returns whether a message with this text after the head is rejected with a syntax fault.
fn is_fault(alloc: Global, text: &[u8]) -> Result<bool, AllocError> {
    let source = repeated(alloc, text, b"", 0, b"")?;
    Ok(matches!(read(alloc, source.as_slice()), Err(ReadFault::Syntax(_))))
}

/// An action with properties, an Add with nearly every descriptor, a Subtract and a Notify.
const SOURCE: &[u8] =
    b"!/1 <gw.example>:2944 T=9 { C = $ { TP{$,*,BW,a,b,oneway}, CA{TP,EG}, PR=5, EG,\
    O-W-Add = $ { Media { Stream = 1 { LocalControl { Mode = SendReceive, rv=OFF, nt/jit=40, \
    a/b=\"x y\", c/d={{}} }, Local{v=0\nm=audio $ RTP/AVP 18\nv=0\nm=audio $ RTP/AVP 8\n}, \
    R{} }, TS{x} }, Signals{ }, DM={(0|xxx)}, AT{M,SA} }, S=ROOT{Audit{}}, N=x/1{y=z{}} } }";

/// Returns whether a span has this text.
fn says(span: Span, text: &[u8]) -> bool {
    is_text(span, SOURCE, text)
}

/// Returns whether there are two triples, a Bothway and then a Oneway from a to b.
fn are_triples(triples: &[NamedTriple]) -> bool {
    let [first, second] = triples else {
        return false;
    };
    first.association == Association::Bothway
        && second.association == Association::Oneway
        && says(second.first, b"a")
        && says(second.second, b"b")
}

/// Returns whether an action's properties are as expected.
fn are_properties(properties: &[ContextProperty]) -> bool {
    let [
        ContextProperty::Topology(triples),
        ContextProperty::ContextAudit(words),
        ContextProperty::Priority(priority),
        ContextProperty::Emergency(None),
    ] = properties
    else {
        return false;
    };
    are_triples(triples.as_slice())
        && words.as_slice() == [ContextWord::Topology, ContextWord::Emergency].as_slice()
        && says(*priority, b"5")
}

/// Returns whether the parts of a LocalControl are as expected.
fn are_controls(controls: &[ControlPart]) -> bool {
    let [
        ControlPart::Mode(Mode::SendReceive),
        ControlPart::ReservedValue(false),
        ControlPart::Property(jitter, Some(PropertyValue::Word(depth))),
        ControlPart::Property(_, Some(PropertyValue::Quoted(quoted))),
        ControlPart::Property(_, Some(PropertyValue::Group)),
    ] = controls
    else {
        return false;
    };
    says(*jitter, b"nt/jit") && says(*depth, b"40") && says(*quoted, b"x y")
}

/// Returns whether a Media descriptor has the expected stream and TerminationState.
fn is_media(media: &[MediaPart]) -> bool {
    let [
        MediaPart::Stream(1, parts),
        MediaPart::TerminationState(true),
    ] = media
    else {
        return false;
    };
    let [
        StreamPart::LocalControl(controls),
        StreamPart::Local(local),
        StreamPart::Remote(remote),
    ] = parts.as_slice()
    else {
        return false;
    };
    are_controls(controls.as_slice())
        && says(
            *local,
            b"v=0\nm=audio $ RTP/AVP 18\nv=0\nm=audio $ RTP/AVP 8\n",
        )
        && says(*remote, b"")
}

/// Returns whether the descriptors of the Add are as expected.
fn are_descriptors(descriptors: &[Descriptor]) -> bool {
    let [
        Descriptor::Media(media),
        Descriptor::Other(OtherWord::Signals, false),
        Descriptor::Other(OtherWord::DigitMap, true),
        Descriptor::Audit(audited),
    ] = descriptors
    else {
        return false;
    };
    is_media(media.as_slice())
        && audited.as_slice() == [AuditWord::Media, AuditWord::Statistics].as_slice()
}

/// Returns whether the descriptors of the Subtract are an empty audit.
fn is_empty_audit(descriptors: &[Descriptor]) -> bool {
    match descriptors {
        [Descriptor::Audit(words)] => words.as_slice().is_empty(),
        _ => false,
    }
}

/// Returns whether the commands are as expected.
fn are_commands(commands: &[Command]) -> bool {
    let [add, subtract, notify] = commands else {
        return false;
    };
    let has_marks = add.is_optional && add.wants_wildcard;
    let has_none = !subtract.is_optional && !subtract.wants_wildcard;
    let are_words = add.word == CommandWord::Add
        && subtract.word == CommandWord::Subtract
        && notify.word == CommandWord::Notify;
    let are_terms = says(add.term, b"$") && says(notify.term, b"x/1");
    has_marks
        && has_none
        && are_words
        && are_terms
        && are_descriptors(add.descriptors.as_slice())
        && is_empty_audit(subtract.descriptors.as_slice())
        && notify.descriptors.as_slice().is_empty()
}

/// Returns whether a message is one request with the expected action.
fn is_request_9(items: &[MessageItem]) -> bool {
    let [MessageItem::Request(request)] = items else {
        return false;
    };
    let [action] = request.actions.as_slice() else {
        return false;
    };
    request.number == 9
        && action.context == ContextId::Choose
        && are_properties(action.properties.as_slice())
        && are_commands(action.commands.as_slice())
}

#[test]
fn reads_an_add_with_a_stream(rt: HostRuntime) -> Result<(), Fail> {
    let message = read(rt.alloc(), SOURCE)?;
    assert!(rt; says(message.sender, b"<gw.example>:2944"));
    let Body::Requests(items) = &message.body else {
        return Err("requests".into());
    };
    assert!(rt; is_request_9(items.as_slice()));
    Ok(())
}

#[test]
fn reads_an_acknowledgement(rt: HostRuntime) -> Result<(), Fail> {
    let source = repeated(
        rt.alloc(),
        b"TransactionResponseAck{1-5,9} P=1{} Pending=2{x}",
        b"",
        0,
        b"",
    )?;
    let message = read(rt.alloc(), source.as_slice())?;
    let Body::Requests(items) = &message.body else {
        return Err("items".into());
    };
    let [MessageItem::Acknowledgement(ranges)] = items.as_slice() else {
        return Err("one acknowledgement".into());
    };
    assert!(rt;
        ranges.as_slice() == [Range { first: 1, last: 5 }, Range { first: 9, last: 9 }].as_slice()
    );
    Ok(())
}

#[test]
fn refuses_what_is_not_in_the_grammar(rt: HostRuntime) -> Result<(), Fail> {
    let cases: [&[u8]; 10] = [
        b"Transaction=4294967296{Context=-{AuditValue=ROOT}}",
        b"Transaction=1{Context=-{AuditValue=ROOT}",
        b"Transaction=1{Context=-{}}",
        b"Transaction=1{Context=-{AuditValue=ROOT,Priority=1}}",
        b"Transaction=1{Context=-{W-O-AuditValue=ROOT}}",
        b"Transaction=1{Context=-{AuditValue=ROOT{Media{Local{}}}}}",
        b"Transaction=1{Context=-{Add=${Media{LocalControl{Loop=1}}}}}",
        b"Transaction=1{Context=-{Add=${Modem[v.90]}}}",
        b"Error=1{} Error=1{}",
        b"",
    ];
    for text in cases {
        assert!(rt; is_fault(rt.alloc(), text)?);
    }
    Ok(())
}

#[test]
fn reads_four_requests_and_no_more(rt: HostRuntime) -> Result<(), Fail> {
    let request: &[u8] = b"Transaction=1{Context=-{AuditValue=ROOT}}";
    let four = repeated(rt.alloc(), b"", request, 4, b"")?;
    let message = read(rt.alloc(), four.as_slice())?;
    assert!(rt; matches!(&message.body, Body::Requests(items) if items.as_slice().len() == 4));
    let five = repeated(rt.alloc(), b"", request, 5, b"")?;
    assert!(rt; matches!(read(rt.alloc(), five.as_slice()), Err(ReadFault::TooMany)));
    Ok(())
}

#[test]
fn reads_64_commands_and_no_more(rt: HostRuntime) -> Result<(), Fail> {
    let front: &[u8] = b"T=1{C=-{AV=ROOT";
    let most = repeated(rt.alloc(), front, b",AV=ROOT", 63, b"}}")?;
    assert!(rt; read(rt.alloc(), most.as_slice()).is_ok());
    let more = repeated(rt.alloc(), front, b",AV=ROOT", 63, b"},C=1{N=a}}")?;
    assert!(rt; matches!(read(rt.alloc(), more.as_slice()), Err(ReadFault::TooMany)));
    let open = repeated(rt.alloc(), front, b",AV=ROOT", 64, b"}")?;
    assert!(rt; matches!(read(rt.alloc(), open.as_slice()), Err(ReadFault::Syntax(_))));
    Ok(())
}

#[test]
fn counts_the_braces_of_a_group(rt: HostRuntime) -> Result<(), Fail> {
    let mut source = repeated(rt.alloc(), b"Error=1", b"{", 4000, b"")?;
    for _ in 0..3999 {
        source.push(b'}')?;
    }
    assert!(rt;
        matches!(
            read(rt.alloc(), source.as_slice()),
            Err(ReadFault::Syntax(_))
        )
    );
    source.push(b'}')?;
    let message = read(rt.alloc(), source.as_slice())?;
    assert!(rt; matches!(message.body, Body::Ignored));
    Ok(())
}

#[test]
fn refuses_a_long_datagram(rt: HostRuntime) -> Result<(), Fail> {
    let mut source = repeated(rt.alloc(), b"", b" ", 8192 - 26 - 9, b"Error=1{}")?;
    assert_equal(&rt, source.len(), 8192);
    assert!(rt; read(rt.alloc(), source.as_slice()).is_ok());
    source.push(b' ')?;
    assert!(rt; matches!(read(rt.alloc(), source.as_slice()), Err(ReadFault::TooMany)));
    Ok(())
}
