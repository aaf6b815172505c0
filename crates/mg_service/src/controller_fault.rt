/// The reason why a list of strings is not a valid list of controllers.
#[derive(Clone, Copy, Debug, PartialEq, Eq)]
pub enum ControllerFault {
    /// A string is not an IPv4 address in dotted decimal.
    Unreadable,
    /// There are more than eight strings.
    TooMany,
}

impl ControllerFault {
    /// Returns the error text.
    pub fn message(self) -> &'static str {
        match self {
            ControllerFault::Unreadable => {
                "invalid value for '--controller <ADDRESS>': not an IPv4 address in dotted decimal"
            }
            ControllerFault::TooMany => {
                "invalid value for '--controller <ADDRESS>': more than 8 controllers"
            }
        }
    }
}
