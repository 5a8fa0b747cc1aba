//! Charts of histories: columns are threads under their processors, rows are steps, and arrows are
//! deliveries.
//!
//! `Chart::new` says what stands in a chart of a part of a history. Contracts see the columns and
//! rows of a chart as lists. Each step of the part is a row. The arrows are exactly the deliveries,
//! each from its sender to its receiver. Behind the last row stands what each thread is in there, and
//! what it waits for.
#![tactic(auto)]

pub mod cells;
mod changes;
pub mod chart;
pub mod columns;
pub mod drawing;
pub mod glyphs;
pub mod html;
mod ink;
pub mod layout;
pub mod listing;
pub mod marks;
mod markup;
pub mod mermaid;
pub mod refused;
pub mod scene;
mod shapes;
pub mod standings;
pub mod svg;
pub mod text;
pub mod threads;
mod told;
mod waiting;
pub mod whole;
pub mod window;
mod words;
