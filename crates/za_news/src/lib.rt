//! Jobs with readings, which are numbers for the events of each process, and their news: what each
//! process knows of each after the weave, where every event writes a reading.
#![tactic(auto)]

mod job;
mod order;
mod read_line;
mod reading;
mod readings;
mod text;
mod weaving;

pub use job::NewsJob;
pub use reading::read_news;
pub use readings::Readings;
pub use text::news_text;
