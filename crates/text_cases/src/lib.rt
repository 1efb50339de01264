//! Cases of the readers of texts, worked by hand: that they answer where memory is there, which no clause says, and
//! what rows of the profile come to.
#![tactic(auto)]

#[cfg(test)]
mod applications;
#[cfg(test)]
mod code_trees;
#[cfg(test)]
mod faults_and_fronts;
#[cfg(test)]
mod generated_systems;
#[cfg(test)]
mod given_words;
#[cfg(test)]
mod oil_trees;
#[cfg(test)]
mod systems;
#[cfg(test)]
mod tokens_of_texts;
