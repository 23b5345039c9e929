//! The commands that check a site, and that make its certificate.

pub mod documents;
pub mod explain;
pub mod explained_survey;
pub mod question;
pub mod survey;
