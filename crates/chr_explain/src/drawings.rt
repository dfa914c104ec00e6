//! A diagnosis as a drawing, and as a page.
mod cards;
mod case_page;
mod census_graph;
mod changes_page;
mod columns_graph;
mod cycle_graph;
mod difference;
mod drawing;
mod graph;
mod graph_drawing;
mod graph_svg;
mod graphs;
mod groups;
mod html;
mod label;
mod limits;
mod listing;
mod page;
mod peak_drawing;
mod style;
mod svg;

pub(crate) use drawing::drawn_text;
pub(crate) use page::page_text;
