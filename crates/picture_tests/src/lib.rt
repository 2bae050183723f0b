//! Tests of rectangles, pixels, pictures, modes, mattes and the stack, through their public calls.
#![tactic(auto)]

#[cfg(test)]
mod beside;
#[cfg(test)]
mod mattes;
#[cfg(test)]
mod modes;
#[cfg(test)]
mod packed;
#[cfg(test)]
mod pixels;
#[cfg(test)]
mod rects;
#[cfg(test)]
mod stacks;
#[cfg(test)]
mod worlds;
