// Small market stories, each with its outcome worked by hand from the rules of the book.
#![tactic(auto)]

#[cfg(test)]
mod answers;
#[cfg(test)]
mod bench;
#[cfg(test)]
mod day;
#[cfg(test)]
mod entries;
#[cfg(test)]
mod full;
#[cfg(test)]
mod grounds;
#[cfg(test)]
mod keys;
#[cfg(test)]
mod memory;
#[cfg(test)]
mod needs;
#[cfg(test)]
mod pre_open;
#[cfg(test)]
mod priorities;
#[cfg(test)]
mod queues;
#[cfg(test)]
mod quotes;
#[cfg(test)]
mod references;
#[cfg(test)]
mod seeking;
