// A proposal: turning points that the phone sends instead of a strip, and the watch's verdict on them (02, Item 7).
#![tactic(auto)]

pub mod judge;
