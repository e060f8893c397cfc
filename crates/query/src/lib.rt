// Where two polygonal features touch: the clip of two segments, the meeting of two lines, the contacts of two edges, and a contact as a line of text.
#![tactic(auto)]

pub mod clip_segment_segment;
pub mod closest_points_line2d;
pub mod contact_data;
pub mod contact_line;
pub mod contact_manifold;
pub mod polygonal_contacts;
