//! Looks that wait for nobody: whoever reads a desk's lines answers a look at once, by the published table, with no lock of the inventory and no
//! sync in its way.
//! It knows flights, the table and the text that answers a look, and nothing of bookings that are asked for, of who publishes or of pipes' files.
#![tactic(auto)]

mod gallery;
mod glance;
mod lookout;
mod looks;
mod question;
mod reading;
mod season;
mod window;
mod words;

pub use gallery::Gallery;
pub use lookout::Lookout;
pub use looks::Looks;
pub use question::{Question, Unseen, look_told};
pub use reading::start_reader;
pub use season::Season;
pub use window::Window;
pub use words::Words;
