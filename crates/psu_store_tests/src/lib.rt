//! Tests of the store and the layers below it, each through its crate, and a medium and a file in memory for them.
//! Expected values are worked by hand from the format of an image and from the definition of a disk.
#![tactic(auto)]

#[cfg(test)]
mod bad_heads;
#[cfg(test)]
mod bad_roots;
#[cfg(test)]
mod edits;
#[cfg(test)]
mod faulty_file;
#[cfg(test)]
mod files;
mod forgetting_medium;
#[cfg(test)]
mod forgotten;
#[cfg(test)]
mod holds;
#[cfg(test)]
mod image_bytes;
#[cfg(test)]
mod images;
#[cfg(test)]
mod kept_ranges;
#[cfg(test)]
mod losses;
#[cfg(test)]
mod maps;
mod medium_file;
#[cfg(test)]
mod migrations;
#[cfg(test)]
mod openings;
#[cfg(test)]
mod other_writer;
#[cfg(test)]
mod passing_disk;
#[cfg(test)]
mod pools;
#[cfg(test)]
mod scenes;
#[cfg(test)]
mod scripted_files;
#[cfg(test)]
mod spelled;
#[cfg(test)]
mod stores;
#[cfg(test)]
mod trials;
#[cfg(test)]
mod unfinished;
#[cfg(test)]
mod written_again;

pub use forgetting_medium::ForgettingMedium;
pub use medium_file::MediumFile;
