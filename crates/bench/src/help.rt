// What an empty script is answered with.
pub const HELP: &str = "drumbench runs a script from standard input, one command to a line:
  shape K cylinder HH R
  shape K cuboid HX HY HZ
  feature K support DIR [HINT]
  feature K make N V0 V1 V2 V3 VID VID VID VID EID EID EID EID FID
  feature K transform POSE
  feature K show
  id vertex|edge|face W
  clip A1 A2 B1 B2
  lines P0 P1 Q0 Q1
  sqrt V
K is 1 or 2. DIR, HINT and a point of clip are three numbers, a point of lines two.
POSE is seven: translation x y z, rotation x y z w. A number is decimal, or x and 16 hexadecimal digits.
";
