// The rules of equality and of the order of classes, and those that close: ref, sym, trn, sub, rep,
// ler, let, lea, cls, emp.
#![tactic(auto)]

pub mod closing;
pub mod equality;
pub mod order;
