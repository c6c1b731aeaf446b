//! What is shown of stations that are tried: what their consoles are told, and the frames that go. Own profile.
//!
//! The trial shows what its stations put out, and whoever runs it fetches the text and writes it.
#![tactic(auto)]

mod screen;

pub use screen::Screen;
