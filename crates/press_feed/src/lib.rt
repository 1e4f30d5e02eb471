// The feed of a job: all its plate rows in order, painted, toned, limited, screened and packed on request, or
// ahead in bands made by several threads. press_job defines what a job is, its tests and its rows.
#![tactic(auto)]

mod band;
mod band_part;
mod band_rows;
mod byte_row;
mod chain;
mod drawer;
mod drawn_rows;
mod feed;
mod frame;
mod frames;
mod held_rows;
mod ink_rows;
mod ink_shares;
mod page_blocks;
mod page_pair;
mod pages;
mod plate_row;
mod row_maker;
mod screener;
mod share;
mod side;
mod side_band;
mod side_pages;
mod side_rows;
mod wanted;
mod wide;

pub use feed::Feed;
pub use press_job::{Job, Refusal, prepare, spotless_law};
pub use wanted::Wanted;
pub use wide::{BandMaker, ByThreads, WideFeed};
