//! The flat source of a text with function blocks: its program without derived instances.
//!
//! Rooms: `laid` keeps function blocks that are laid flat, with copies that are named and not written; `values`,
//! `statements` and `declarations` make them of bodies; `renaming` writes statements under other names: as they are
//! declared, or inside an instance, where `inside` writes names and declarations; `copies` writes whole copies, from
//! the outermost instance inwards; `body` lays function blocks flat, one after the other, and the program over them;
//! `flattening` hands on a program without function blocks. What a reader believes stands in ps_derived: `Flat`.
#![tactic(auto)]

mod body;
mod copies;
mod declarations;
mod flattening;
mod inside;
mod laid;
mod renaming;
mod statements;
mod values;

pub use flattening::flatten;
