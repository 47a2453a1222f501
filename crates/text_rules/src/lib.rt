// Text as bytes, numbers in decimal, and a text pasted into a buffer: definitions and laws. The code is crate text_writer.

#![tactic(auto)]
