// Calls that are run, of those that no line of text can make; `gridjob` is run on lines of text.
#![tactic(auto)]

#[cfg(test)]
mod jobs;
#[cfg(test)]
mod places;
#[cfg(test)]
mod queues;
#[cfg(test)]
mod registers;
#[cfg(test)]
mod runs;
#[cfg(test)]
mod steps;
