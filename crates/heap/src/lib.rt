// What a program calls: every call on a heap, over the width of its words. `Wide` is document 01's heap, with words of 8 bytes, `Hand` the hand unit's, with words of 4.
// A buffer's heap is of one width: each refuses the other's with 2.
#![tactic(auto)]

pub use examining::{Verdict, examine, verdict};
pub use model::{Address, Hand, MOST_CLASSES, Position, Refusal, Wide, end_of};
pub use reading::heap::SoundHeap;
pub use serving::counting::{Counted, Statistics, class_table, statistics, try_class_table};
pub use serving::lookup::{
    LookedUp, look_up, look_up_mut, look_up_refusal, look_up_told, try_look_up, try_look_up_mut,
};
pub use serving::recovery::sweep;
pub use serving::resize::{keep, relocate, resize_in_place};
pub use serving::walks::{Step, Stepped, Walk};
pub use serving::{Answer, allocate, check, free, initialise, initialise_whole};
pub use trying::resize;
pub use words::Width;
