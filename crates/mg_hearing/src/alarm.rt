use mg_heard::{Rule, Style};

/// Rules that a script must obey, and the style in which a violation is written.
#[derive(Drop)]
pub(crate) struct Alarm {
    pub(crate) style: Style,
    pub(crate) rules: Vec<Rule>,
}
