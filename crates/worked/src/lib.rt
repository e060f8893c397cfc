// Worked values of the math and query layers, as a person would try them.
#![tactic(auto)]

#[cfg(test)]
mod edges;
#[cfg(test)]
mod lines;
#[cfg(test)]
mod roots;
