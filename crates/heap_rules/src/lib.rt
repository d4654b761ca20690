// The rules of images and of heaps: img, wit, fin, rdh, rdm.
#![tactic(auto)]

pub mod images;
pub mod reads;
