//! What the image of a program in the low form keeps of it, with the claims on it: definitions alone.
//!
//! `specs/Kept` has one record, for every assignment of places and every placement: runs, claims, lines, marks, sizes and
//! loose flows. Before it stand what it says of these: that places leave a program's numbers as they are (`Rooms`); the
//! segments of an image with what they keep and take (`Segments`), the sizes of items (`Items`), and what an image takes, where
//! its items lie and how many claims it has (`Images`). That each layout keeps the record is the law of `layout_law`, which
//! proves that part by itself as well; who builds on a layout needs the record alone.
#![tactic(auto)]
