// Code pages: which character a byte stands for, and which byte stands for a character.
#![tactic(auto)]

mod ascii;
mod examples;
mod page;
mod table;
mod windows1251;
mod windows1252;

pub use ascii::Ascii20127;
pub use examples::pages_as_worked;
pub use page::CodePage;
pub use table::TablePage;
pub use windows1251::Windows1251;
pub use windows1252::Windows1252;
