//! The parameters of the objects of a script: what each kind of object takes, what is wrong with those of one, and what they say.

pub mod by_name;
pub mod flaws;
pub mod kind;
pub mod objects;
pub mod rows;
pub mod settings;
pub mod values;
