//! Tests of ops, programs and images by their public calls.
#![tactic(auto)]

#[cfg(test)]
mod altered_fields;
#[cfg(test)]
mod building;
#[cfg(test)]
mod checked_calls;
#[cfg(test)]
mod checked_ops;
#[cfg(test)]
mod code_in_place;
#[cfg(test)]
mod compare;
#[cfg(test)]
mod images;
#[cfg(test)]
mod large_images;
#[cfg(test)]
mod names_found;
#[cfg(test)]
mod op_code_table;
#[cfg(test)]
mod operations_and_names;
#[cfg(test)]
mod ops_both_ways;
#[cfg(test)]
mod ops_made;
#[cfg(test)]
mod programs_made;
#[cfg(test)]
mod readers;
#[cfg(test)]
mod record_numbers;
#[cfg(test)]
mod versions;
#[cfg(test)]
mod written_programs;
