// What greens, refusals and verdicts are at their edges, with each expected answer written out. There is nothing here but tests.
#![tactic(auto)]

#[cfg(test)]
mod apartness;
#[cfg(test)]
mod figures;
#[cfg(test)]
mod lights;
#[cfg(test)]
mod refusals;
#[cfg(test)]
mod sentences;
#[cfg(test)]
mod starts;
#[cfg(test)]
mod verdicts;
