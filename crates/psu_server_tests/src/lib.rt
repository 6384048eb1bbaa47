//! Tests of the server over sockets: of the responses to a session (frames, transmissions, device clears, long responses,
//! stores that fail), and of concurrent sessions (locks and releases, service requests, ends, crowds, floods). Expected
//! frames are worked by hand from the profile of the protocol.
#![tactic(auto)]

#[cfg(test)]
mod clears;
#[cfg(test)]
mod credits;
#[cfg(test)]
mod crowds;
#[cfg(test)]
mod day;
#[cfg(test)]
mod ends;
#[cfg(test)]
mod floods;
#[cfg(test)]
mod frames;
#[cfg(test)]
mod full_image;
#[cfg(test)]
mod ground;
#[cfg(test)]
mod hold;
#[cfg(test)]
mod images;
#[cfg(test)]
mod locks;
#[cfg(test)]
mod play;
#[cfg(test)]
mod ports;
#[cfg(test)]
mod reads;
#[cfg(test)]
mod releases;
#[cfg(test)]
mod room;
#[cfg(test)]
mod rows;
#[cfg(test)]
mod screen;
#[cfg(test)]
mod server;
#[cfg(test)]
mod service;
#[cfg(test)]
mod sick_disk;
#[cfg(test)]
mod stores;
#[cfg(test)]
mod thresholds;
#[cfg(test)]
mod transmissions;
