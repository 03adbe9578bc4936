// Tests of the outside and of the texts: that calls succeed where memory is ample, and what real files give.
#![tactic(auto)]

#[cfg(test)]
mod certificates;
#[cfg(test)]
mod files;
#[cfg(test)]
mod streams;
