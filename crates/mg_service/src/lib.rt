//! The options of a gateway: its configuration, its sockets and its title.
//!
//! A [`Service`] holds the options of a gateway on sockets, and makes the setup of its session. [`ConfigOptions`] holds
//! those of its configuration: it makes the configuration, compares it with another one, and draws the numbers that no
//! option sets:
//!
//! ```rust
//! let config = service.given.draw(&random, &service.given.config())?;
//! let title = title_line_of(&config);
//! serve(service.setup(config, reached, title.as_slice()), &mut ports)
//! ```
//!
//! [`title_of`] returns the title of a recording, which states a configuration as arguments, and [`titled`] reads a title.
//!
//! `specs/ConfigOptions.antt` defines the configuration that options specify, and `specs/Setup.antt` a session's setup.
//! `specs/Title.antt` defines the first line of a recording, and `specs/Script.antt` the script in a journal.
//! `specs/Address.antt`, `specs/Controllers.antt` and `specs/FilePath.antt` define how addresses and paths are written.
#![tactic(auto)]

mod address;
mod bind_address_fault;
mod bind_addresses;
mod config_fault;
mod config_options;
mod controller_fault;
mod controllers;
mod file_path;
mod file_path_fault;
mod service;
mod title;
mod title_reading;

pub use crate::address::{AddressFault, is_multicast, own_address};
pub use crate::bind_address_fault::BindAddressFault;
pub use crate::bind_addresses::{BindAddresses, MAX_BIND_ADDRESSES};
pub use crate::config_fault::ConfigFault;
pub use crate::config_options::ConfigOptions;
pub use crate::controller_fault::ControllerFault;
pub use crate::controllers::Controllers;
pub use crate::file_path::FilePath;
pub use crate::file_path_fault::FilePathFault;
pub use crate::service::Service;
pub use crate::title::{TITLE_LIMIT, Title, TitleLine, title_line_of, title_of};
pub use crate::title_reading::titled;
