//! The lists that the crates above hold and name in their contracts.
//!
//! [`Bytes`] is any bytes, [`Text`] is UTF-8, [`Name`] is 1 to 64 visible ASCII characters, and [`List`] holds
//! items of any type. Contracts see each of them as the list of what it holds. A call that finds no memory
//! answers [`NoMemory`] and changes nothing.
//!
//! Beside them stand the parts that plain text is made of: lines and their fields, decimal numbers, and bytes in hexadecimal. Settings,
//! scripts, host files and the words of the command line are written in them; of these calls [`fields_of`] alone takes memory. Read
//! `specs/Lines.antt` first.
#![tactic(auto)]

mod byte_string;
mod decimal;
mod fields;
mod hexadecimal;
mod lines;
mod list;
mod memory;
mod name;
mod text;

pub use byte_string::Bytes;
pub use decimal::{MAX_DIGITS, number_in, parse_decimal, value_of};
pub use fields::{fields_of, is_word, one_field, split_field, two_fields};
pub use hexadecimal::{MAX_BYTES, read_hex};
pub use lines::{is_skipped, split_line};
pub use list::List;
pub use memory::NoMemory;
pub use name::{Name, is_name};
pub use text::Text;
