//! The worked rows: the results of runs, reports and images. Expected values are worked by hand from the rules of the
//! instrument.
#![tactic(auto)]

#[cfg(test)]
mod counted_calls;
#[cfg(test)]
mod failing_disks;
#[cfg(test)]
mod faults;
#[cfg(test)]
mod holds;
#[cfg(test)]
mod hostile_images;
#[cfg(test)]
mod hostile_lines;
#[cfg(test)]
mod images;
#[cfg(test)]
mod kept_parts;
#[cfg(test)]
mod late_saves;
#[cfg(test)]
mod long_answers;
#[cfg(test)]
mod long_transcripts;
#[cfg(test)]
mod memory;
#[cfg(test)]
mod messages;
#[cfg(test)]
mod old_images;
#[cfg(test)]
mod power_on_rows;
#[cfg(test)]
mod reports;
#[cfg(test)]
mod returned;
#[cfg(test)]
mod runs;
#[cfg(test)]
mod scarce_lines;
#[cfg(test)]
mod spelled;
#[cfg(test)]
mod spelled_rows;
#[cfg(test)]
mod texts;
#[cfg(test)]
mod transcripts;
