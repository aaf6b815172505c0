//! The arguments of `mg_bridge`, and the run that they request.
//!
//! [`requested_run`] returns the run that the arguments request:
//!
//! ```rust
//! let words = ["replay", "--slots", "4"];
//! match requested_run(alloc, &words) {
//!     Ok(Invocation::Replay(config, shown)) => run(alloc, config, shown, &mut input, &mut output),
//!     Err(error) => report_error(&error, Status::Failed, &mut output, &mut errors),
//!     ..
//! }
//! ```
//!
//! `specs/Options.antt` defines the command line and the run that the arguments request, and `specs/Rules.antt` how rules
//! about who must not be heard are written.
#![tactic(auto)]

mod audible_request;
mod file_paths;
mod heard_options;
mod heard_request;
mod invocation;
mod option_fault;
mod options;
mod printing;
mod rule_fault;
mod rules;
mod sealing_options;
mod watch_request;
mod zone_name;

pub use crate::audible_request::AudibleRequest;
pub use crate::file_paths::FilePaths;
pub use crate::heard_request::HeardRequest;
pub use crate::invocation::Invocation;
pub use crate::options::requested_run;
pub use crate::printing::Printing;
pub use crate::rule_fault::RuleFault;
pub use crate::rules::Rules;
pub use crate::watch_request::WatchRequest;
pub use crate::zone_name::ZoneName;
