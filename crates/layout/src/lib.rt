// A system laid out for the code that works on it in place.
#![tactic(auto)]

use election::{Message, PLACES};
use station::Station;

pub mod rules;

// (a) Its two arrays stay side by side: `layout_of` and `system_of` promise one of these for each system, and back; a `System` keeps its links as callers hand them over.
// A system with the messages of all links in one array, so that each is read and stored where it stands: of the link at place k how
// many there are, and its messages from PLACES * k on, the used places first.
#[derive(Clone, Copy)]
pub struct Layout {
    pub ready: bool,
    pub n: u8,
    pub period: u32,
    pub tick: u32,
    pub stations: [Station; 8],
    pub sent: [u32; 8],
    pub delays: [u8; 64],
    pub used: [u8; 64],
    pub messages: [Message; 64 * PLACES],
    pub ranks: [u8; 8],
    pub clock: bool,
}
