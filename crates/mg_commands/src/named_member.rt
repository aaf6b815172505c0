ghost use Rattle.std.specs.Prelude.{◌≡◌, ◌≤◌, length};
ghost use Rattle.mg_words.specs.Term.{rtp_name};

use arrayvec::ArrayVec;
use mg_engine::SeatedMember;
use mg_reply::RtpName;
use mg_words::MEMBER_LIMIT;
use std::marker::Model;

/// A member of a context, together with the name of its termination, so that the name is built only once. In contracts,
/// only the member appears.
#[derive(Drop)]
pub struct NamedMember {
    seated: SeatedMember,
    name: RtpName,
}

impl Model for NamedMember {
    ghost use Rattle.std.specs.Prelude.{◌≡◌};
    ghost use Rattle.mg_words.specs.Term.{rtp_name};
    ghost use Rattle.mg_engine.specs.declared.seated_member.SeatedMember.{SeatedMember};

    ghost Value = { SeatedMember };

    ghost view = { λ m. m.seated };

    ghost invariant = { λ m. m.name ≡ rtp_name m.seated.number };
}

impl NamedMember {
    /// Returns a member together with its name.
    pub fn new(seated: SeatedMember) -> Self
        ensures value { result ≡ seated }
    {
        NamedMember {
            seated,
            name: RtpName::new(seated.number),
        }
    }

    /// Returns the member.
    pub fn seated(&self) -> SeatedMember
        ensures value { result ≡ self.now }
    {
        self.seated
    }

    /// Returns the name of the member's termination.
    pub fn name(&self) -> RtpName
        ensures value { result ≡ rtp_name self.now.number }
    {
        self.name.again()
    }
}

impl Default for NamedMember {
    ghost use Rattle.std.specs.Prelude.{◌≡◌};

    ghost is_default = { λ m. m ≡ record { number = 0; room = 0; seat = 0 } };

    fn default() -> Self {
        NamedMember::new(SeatedMember::default())
    }
}

/// Returns members together with their names.
pub fn named_members(members: &[SeatedMember]) -> ArrayVec<NamedMember, MEMBER_LIMIT>
    requires few { length members.now ≤ MEMBER_LIMIT }
    ensures value { result.items ≡ members.now }
{
    let mut named = ArrayVec::new();
    for member in members {
        named.push(NamedMember::new(*member));
    }
    named
}
