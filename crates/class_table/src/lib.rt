// The table of size classes: block size and blocks in a superblock of 4096 bytes. The code for the class of a size is in crate class_of_size.
#![tactic(auto)]

ghost use Rattle.std.specs.Prelude.{◌≡◌, ◌≤◌};
ghost use Rattle.class_rules.specs.Classes.{most_blocks, size_of, blocks_of};

use class_rules::CLASS_COUNT;

const SIZES: [u16; CLASS_COUNT] = [
    16, 24, 32, 40, 48, 56, 64, 80, 96, 112, 128, 160, 192, 224, 256, 320, 384, 448, 512, 640, 768,
    896, 1024, 1280, 1536, 1792, 2048,
];

const COUNTS: [u16; CLASS_COUNT] = [
    256, 170, 128, 102, 85, 73, 64, 51, 42, 36, 32, 25, 21, 18, 16, 12, 10, 9, 8, 6, 5, 4, 4, 3, 2,
    2, 2,
];

// The block size of a class; 0 where there is no such class.
pub fn block_size(class: u8) -> u16
    ensures { result ≡ size_of class }
{
    SIZES.get(class as usize).copied().unwrap_or(0)
}

// How many blocks a superblock of a class has; 0 where there is no such class.
pub fn block_count(class: u8) -> u16
    ensures { (result ≡ blocks_of class) × (result ≤ most_blocks) }
{
    COUNTS.get(class as usize).copied().unwrap_or(0)
}
