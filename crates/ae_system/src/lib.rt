//! The real disk, directories and streams, for the traits of ae_outside; who asks, and when.
#![tactic(auto)]

mod around;
mod course;
pub mod descriptors;
mod disk;
mod emptied;
mod folder;
mod holder;
mod home;
mod kept;
mod lock;
mod made;
mod modes;
mod places;
mod progress;
mod run_log;
mod shown;
mod site;
mod store;
mod streams;
mod taken;
mod trouble;
pub mod who;

pub use course::{Course, Manner};
pub use disk::RealDisk;
pub use emptied::Removals;
pub use home::Home;
pub use lock::Patience;
pub use site::RealSite;
pub use store::{Access, Store};
pub use streams::{Quiet, Reading, Writing};
pub use trouble::Trouble;
