//! Schedules, step by step. What is wanted stands in the formats of requests and replies.

mod closing;
mod copying;
mod long;
mod meeting;
mod parts;
mod playing;
mod schedules;
