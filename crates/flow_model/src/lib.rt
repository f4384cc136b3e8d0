//! Requests as flows: what a client asks of the store, and what a request does phase by phase.
//!
//! An `Order` is what a client asks. A request for it begins with a `Flow` and a first phase (`started` of
//! specs/Flow); whenever its phase has ended, `next` of specs/Next says what it does: go on with another phase
//! (`More`), wait for its client (`Need`), go on waiting (`Wait`), or end (`End`). A put whose bytes come block by block
//! waits for its client: what it does when a block has come, when it is kept and when it is given up say the functions of
//! specs/Streams. Nothing here knows of nodes, messages or quorums; the coordinator's clock is all that a flow is told of
//! its cluster.
//!
//! `Flows` is a trait of five calls, which give what these functions say. Code that drives requests takes its flows by
//! it. There is no code here.
//!
//! In specs/: the rows that requests store (`Rows`), the blocks that bytes are cut into (`Blocks`), what a row says
//! of its object and a version row of its blocks (`Says`), the functions (`Flow`, `Next`, `Streams`), and when a write would
//! draw a timestamp past its type (`Overdrawn`). The types are shared by the definitions and by the code that does what
//! they say.
#![tactic(auto)]

mod flow;
mod flows;
mod order;

pub use flow::{Aim, Coming, Content, Flow, FlowEnd, FlowStep, Name, Stage, Wish};
pub use flows::Flows;
pub use order::Order;
