//! Tests of S3 requests and answers: the heads that clients send and what they ask, each refusal and which of two
//! comes first, ranges, tokens and copy sources; pages of lists, every answer's bytes, dates.
#![tactic(auto)]

#[cfg(test)]
mod answers;
#[cfg(test)]
mod clients;
#[cfg(test)]
mod expected;
#[cfg(test)]
mod pages;
#[cfg(test)]
mod reading;
#[cfg(test)]
mod refusals;
#[cfg(test)]
mod stored;
#[cfg(test)]
mod times;
#[cfg(test)]
mod values;
