//! Two commands that print what code of a kernel an application's view has, and run no guest.
//!
//! - [`words`]: whether words ask for one of them.
//! - [`list`]: `list IMAGE VIEWS APP`, the listing of the view of an app.
//! - [`surface`]: `surface IMAGE VIEWS`, how much code each app's view has.
//!
//! What each promises of its files is in `specs/Requests.antt`. Below stand the frame of commands and the listings; the
//! program, which tells the words of all commands apart, stands above.
#![tactic(auto)]

pub mod laws;
pub mod list;
mod printed;
pub mod surface;
#[cfg(test)]
mod tests;
pub mod words;
