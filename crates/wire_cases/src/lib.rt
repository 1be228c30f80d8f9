// Worked examples of signatures and values, good and bad, in both byte orders, on both sides of each limit.
#![tactic(auto)]

#[cfg(test)]
mod reading;
#[cfg(test)]
mod signatures;
#[cfg(test)]
mod values;
