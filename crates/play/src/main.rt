// Plays a script: standard input line by line, and the answers to standard output.
#![tactic(auto)]

mod answers;
mod calls;
mod output;
mod player;

use player::Player;

fn main(rt: HostRuntime) {
    let mut player = Player::new(rt.stdout());
    player.play(rt.stdin());
}
