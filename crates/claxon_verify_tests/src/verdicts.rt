//! What is said of streams that were verified.
mod json_report;
mod reports;
mod text;
