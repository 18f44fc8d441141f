//! The outside of a program (bytes in and out, links, moments, random words), lists in contracts, and printing
//! without memory.
#![tactic(auto)]

mod buffer;
mod calls;
mod clock;
mod date;
mod date_reader;
mod dialer;
mod fault;
mod input;
mod items;
mod link;
mod listener;
mod loopback;
mod mem_links;
mod memory;
mod moment;
mod moment_reader;
mod output;
mod printer;
mod random;
mod sink;
mod source;
mod system;

pub use buffer::{Buffer, Refill};
pub use clock::{Clock, GREATEST_MOMENT, StepClock};
pub use date::{moments_have_one_date, print_date, printed_dates_are_read_back, read_date};
pub use date_reader::{dates_are_read, take_date};
pub use dialer::Dialer;
pub use fault::Failed;
pub use input::Input;
pub use items::Items;
pub use link::{Both, Link};
pub use listener::Listener;
pub use loopback::{LoopbackDialer, LoopbackListener, TcpLink};
pub use mem_links::{MemDialer, MemListener};
pub use memory::{MemLink, MemSink, MemSource};
pub use moment::{moments_have_one_text, print_moment};
pub use moment_reader::{BadMoment, moments_are_read, read_moment, take_moment};
pub use output::Output;
pub use printer::{Fragment, print};
pub use random::{Random, StepWords};
pub use sink::Sink;
pub use source::Source;
pub use sx_memory::NoMemory;
pub use system::{SystemClock, SystemRandom};
